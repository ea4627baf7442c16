// Bytes passed on by the source and the sink that never fail.
use ports::{SureSink, SureSource, read_all, write_all};
use std::test::Fail;

#[test]
fn passes_bytes_on(rt: HostRuntime) -> Result<(), Fail> {
    let alloc = rt.alloc();
    let mut source = SureSource::new(b"semigroup".to_vec(alloc)?);
    let bytes = read_all(alloc, &mut source, 9)?;
    let mut sink = SureSink::new(alloc);
    write_all(&mut sink, &bytes)?;
    write_all(&mut sink, b"s")?;
    assert_eq!(rt; sink.taken(), b"semigroups".as_slice());
    assert_eq!(rt; read_all(alloc, &mut source, 0)?.len(), 0);
    Ok(())
}
