//! A file of which no read fails: a table of no objects.

use fca_io::{SureSource, read_all};
use std::test::Fail;

#[test]
fn reads_what_never_fails(rt: HostRuntime) -> Result<(), Fail> {
    let file = b"B\n\n0\n3\n\na\nb\nc\n";
    let mut source = SureSource::new(rt.alloc(), file)?;
    let read = read_all(rt.alloc(), &mut source, file.len())?;
    assert_eq!(rt; read.as_slice(), file.as_slice());
    Ok(())
}
