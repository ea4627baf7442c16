ghost use Rattle.std.specs.Prelude.{◌≡◌, ◌≤◌, OnOk, IfOk, IsErrOf, vec_len};
ghost use Rattle.ports.specs.Bytes.{Gave, GaveOver, GaveUpTo, IsAtEnd, Rose};

use super::fault::ReadFault;
use super::source::Source;
use std::alloc::Global;

/// Reads to the end of input, or until more than `limit` bytes came. The answer is all the bytes
/// that were left, and leaves none.
///
/// `TooLong` comes exactly where more than `limit` bytes came. `Failed` comes only where the
/// source's count of faults rose, and the count rises with no other outcome. `NoMemory` comes where
/// memory ran out. After each of the three the source has given a prefix of its bytes, which is
/// lost.
pub fn read_all<S: Source>(
    alloc: Global,
    source: &mut S,
    limit: usize,
) -> Result<Vec<u8>, ReadFault>
    ensures all { IfOk result (λ bytes.
        Gave (S.left source.old) (S.left source.new) bytes.items × IsAtEnd (S.left source.new)) }
    ensures within { IfOk result (λ bytes. vec_len bytes ≤ limit) }
    ensures too_long { IsErrOf result ReadFault.TooLong
        → GaveOver limit (S.left source.old) (S.left source.new) }
    ensures failed_within { IsErrOf result ReadFault.Failed
        → GaveUpTo limit (S.left source.old) (S.left source.new) }
    ensures refused_within { IsErrOf result ReadFault.NoMemory
        → GaveUpTo limit (S.left source.old) (S.left source.new) }

    // the count of faults rises only with `Failed`
    ensures kept { S.faults source.old ≤ S.faults source.new }
    ensures failed { IsErrOf result ReadFault.Failed
        → Rose (S.faults source.old) (S.faults source.new) }
    ensures quiet { OnOk result (S.faults source.new ≡ S.faults source.old) }
    ensures quiet_too_long { IsErrOf result ReadFault.TooLong
        → S.faults source.new ≡ S.faults source.old }
    ensures quiet_refused { IsErrOf result ReadFault.NoMemory
        → S.faults source.new ≡ S.faults source.old }
{
    let mut bytes = Vec::new(alloc);
    let mut buf = [0u8; 4096];
    loop {
        let n = source.read(&mut buf)?;
        if n == 0 {
            return Ok(bytes);
        }
        if n > limit - bytes.len() {
            return Err(ReadFault::TooLong);
        }
        bytes.extend_from_slice(&buf[..n])?;
    }
}
