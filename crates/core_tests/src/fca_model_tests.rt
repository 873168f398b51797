//! A name that is copied.

use fca_model::Name;
use std::test::Fail;

#[test]
fn a_name_is_copied(rt: HostRuntime) -> Result<(), Fail> {
    let copy = Name::new(rt.alloc(), "a")?.copy()?;
    assert_eq!(rt; copy.text(), "a");
    Ok(())
}
