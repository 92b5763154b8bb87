//! What the steps so far declare.

ghost use Rattle.std.specs.Prelude.{◌≡◌, option_map, nat_lt, ◌^◌};
ghost use Rattle.std.specs.List.{list_any, list_all};
ghost use Rattle.std.specs.Str.{bytes_eq};
ghost use Rattle.script_steps.specs.Context.{person_by, channel_by, is_person, is_hand, is_node, is_channel, is_state, is_new, knows, has_seed, has_index, signs, repeats};

use crate::digits::is_hex;
use crate::name_list::NameList;
use channel_values::{Key, Label, Listed, Name};

/// What a name must be declared as, where a key uses it.
#[derive(Clone, Copy, Debug, PartialEq, Eq)]
pub enum Kind {
    Person,
    /// A person without a node, whose hand the script leads.
    Hand,
    /// A person with a node.
    Node,
    Channel,
    /// A channel, or 64 digits.
    Place,
    State,
    /// A person or a channel, which can receive.
    Dest,
}

/// A declared person, with its public key and the digest that names it.
#[derive(Drop)]
pub struct Person {
    pub name: Label,
    pub seed: [u8; 32],
    /// The height of the key's tree.
    pub h: u64,
    pub node: bool,
    pub key: Key,
    pub digest: Name,
}

/// A declared channel, with the digest that names it.
#[derive(Drop)]
pub struct Channel {
    pub name: Label,
    pub digest: Name,
}

/// What a step is read in: whether the script is for a race, and what the steps before it declared
/// and used up. It is public so that a contract can say in what a step was checked.
#[derive(Drop)]
pub struct Context {
    pub race: bool,
    pub people: Listed<Person>,
    pub channels: Listed<Channel>,
    pub states: NameList,
    /// Who signed, once for each sign and challenge step.
    pub signers: Listed<Label>,
    /// The sum of all counts of rounds.
    pub rounds: u64,
}

impl Context {
    pub fn person_by(&self, name: &str) -> Option<&Person>
        ensures { option_map (λ p. p.now) result ≡ person_by self.now name.now }
    {
        self.people
            .as_slice()
            .iter()
            .find(|p| p.name.as_str() == name)
    }

    pub fn channel_by(&self, name: &str) -> Option<&Channel>
        ensures { option_map (λ k. k.now) result ≡ channel_by self.now name.now }
    {
        self.channels
            .as_slice()
            .iter()
            .find(|k| k.name.as_str() == name)
    }

    fn is_person(&self, name: &str) -> bool
        ensures { result ≡ is_person self.now name.now }
    {
        self.people
            .as_slice()
            .iter()
            .any(|p| p.name.as_str() == name)
    }

    fn is_hand(&self, name: &str) -> bool
        ensures { result ≡ is_hand self.now name.now }
    {
        self.people
            .as_slice()
            .iter()
            .any(|p| p.name.as_str() == name && !p.node)
    }

    fn is_node(&self, name: &str) -> bool
        ensures { result ≡ is_node self.now name.now }
    {
        self.people
            .as_slice()
            .iter()
            .any(|p| p.name.as_str() == name && p.node)
    }

    fn is_channel(&self, name: &str) -> bool
        ensures { result ≡ is_channel self.now name.now }
    {
        self.channels
            .as_slice()
            .iter()
            .any(|c| c.name.as_str() == name)
    }

    fn is_state(&self, name: &str) -> bool
        ensures { result ≡ is_state self.now name.now }
    {
        self.states.contains(name)
    }

    pub fn is_new(&self, name: &str) -> bool
        ensures { result ≡ is_new self.now name.now }
    {
        !(self.is_person(name) || self.is_channel(name) || self.is_state(name))
    }

    /// Whether the name is declared as the kind.
    pub fn knows(&self, kind: Kind, name: &Label) -> bool
        ensures { result ≡ knows self.now kind name.now }
    {
        let name = name.as_str();
        match kind {
            Kind::Person => self.is_person(name),
            Kind::Hand => self.is_hand(name),
            Kind::Node => self.is_node(name),
            Kind::Channel => self.is_channel(name),
            Kind::Place => is_hex(name) || self.is_channel(name),
            Kind::State => self.is_state(name),
            Kind::Dest => self.is_person(name) || self.is_channel(name),
        }
    }

    pub fn knows_all(&self, kind: Kind, names: &[Label]) -> bool
        ensures { result ≡ list_all (knows self.now kind) names.now }
    {
        names.iter().all(|n| self.knows(kind, n))
    }

    pub(crate) fn has_seed(&self, seed: &[u8; 32]) -> bool
        ensures { result ≡ has_seed self.now seed.now }
    {
        self.people.as_slice().iter().any(|p| p.seed == *seed)
    }

    /// Whether a person has an index left to sign with.
    pub(crate) fn has_index(&self, name: &str) -> bool
        ensures { result ≡ has_index self.now name.now }
    {
        let signs = self.signs(name);
        self.people
            .as_slice()
            .iter()
            .any(|p| p.name.as_str() == name && is_below_power(signs, p.h))
    }

    /// How often a person signed.
    fn signs(&self, name: &str) -> usize
        ensures { result ≡ signs self.now name.now }
    {
        self.signers
            .as_slice()
            .iter()
            .filter(|s| s.as_str() == name)
            .count()
    }
}

fn is_below_power(count: usize, h: u64) -> bool
    ensures { result ≡ nat_lt count (2 ^ h) }
{
    h >= 64 || count < 1usize << h
}

fn is_among(name: &str, names: &[Label]) -> bool
    ensures { result ≡ list_any (bytes_eq name.now) names.now }
{
    names.iter().any(|n| name == n.as_str())
}

/// Whether a name stands twice.
pub(crate) fn repeats(names: &[Label]) -> bool
    ensures { result ≡ repeats names.now }
{
    match names {
        [] => false,
        [first, rest @ ..] => is_among(first.as_str(), rest) || repeats(rest),
    }
}
