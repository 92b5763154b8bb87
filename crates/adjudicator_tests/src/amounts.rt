//! Running amounts by key.

use asset_holder::amounts::{amount, set_amount};
use indexmap::IndexMap;
use std::test::Fail;

#[test]
fn the_last_amount_of_a_key_counts(rt: HostRuntime) -> Result<(), Fail> {
    let mut amounts: IndexMap<([u8; 32], u32), u64> = IndexMap::new(rt.alloc());
    let (first, second) = (([1; 32], 0), ([1; 32], 1));
    assert_eq!(rt; amount(&amounts, &first), 0);
    amounts.reserve(3)?;
    set_amount(&mut amounts, first, 5);
    set_amount(&mut amounts, second, 7);
    set_amount(&mut amounts, first, 6);
    assert_eq!(rt; amount(&amounts, &first), 6);
    assert_eq!(rt; amount(&amounts, &second), 7);
    assert_eq!(rt; amounts.len(), 2);
    Ok(())
}
