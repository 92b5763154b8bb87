//! Reads scripts: the steps that the bytes of a text are, or the first rule that they break.
#![tactic(auto)]

mod forms;
mod kinds;
mod reading;
mod resolve;
mod script;
mod written;

pub use forms::{is_word, written_by};
pub use kinds::{
    app_at, array_at, flag_at, has_keys, keys, name_at, name_of, names_at, number_at, number_of,
    numbers_at, place_at, seed_at, word_at,
};
pub use script::{Script, ScriptFault, read_script, read_script_with_signers, start};
pub use script_steps::{Channel, Context, NameList, Person, Rule, Step, id_of};
pub use written::{
    Holding, OpenKeys, OpenOnKeys, OpenVirtualKeys, SignKeys, Written, WrittenAsset, WrittenShape,
};
