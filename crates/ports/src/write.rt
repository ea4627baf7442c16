ghost use Rattle.ports.specs.Writes.{TellsRefusals, WritesBytes};

use super::fault::WriteFault;
use super::sink::Sink;

/// Passes the whole piece to the sink, in as many writes as it takes. An answer says that the sink
/// took all of it, and that neither of its counts rose.
///
/// `Failed` comes only where the sink's count of faults rose, and `NoMemory` only where its count
/// of refusals rose. After either the sink has taken a prefix of the piece.
pub fn write_all<O: Sink>(sink: &mut O, bytes: &[u8]) -> Result<(), WriteFault>
    ensures bytes { WritesBytes O.Sink bytes.now sink.old sink.new result }
    ensures refusals { TellsRefusals O.Sink sink.old sink.new result }
{
    let mut done = 0;
    while done < bytes.len() {
        match sink.write(&bytes[done..]) {
            Ok(n) => done += n,
            Err(fault) => return Err(fault),
        }
    }
    Ok(())
}
