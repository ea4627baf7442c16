// Runs over a source and sinks in memory, and the adapters of streams.
ghost use Rattle.std.specs.Prelude.{◌≡◌, IfOk};

use super::adapters::{InputSource, OutputSink};
use super::top::semi;
use ports::{Failed, Gate, MemSink, MemSource, NoMemory, Sink, Source, WriteFault};
use std::alloc::Global;
use std::io;
use std::io::{BufWriter, ErrorKind, Read, Write};
use std::test::Fail;
use std::thread::Threads;

// The symmetric group of degree 3.
pub(crate) const GROUP: &str =
    "monoid ab\nrel aa 1\nrel bbb 1\nrel abab 1\nindex\nclasses 9\nrules\n";

pub(crate) const GROUP_REPORT: &str = "index 6\n1\na\nb\nab\nba\nbb\nend\n\
                            aa 1\naba bb\nabb ba\nbab a\nbba ab\nbbb 1\nend\n";

// What a run came to.
#[derive(Drop)]
pub(crate) struct Outcome {
    pub(crate) status: u8,
    pub(crate) out: Vec<u8>,
    pub(crate) err: Vec<u8>,
}

// The most bytes of a read and of a write, which are one at least, and the calls that fail, each by
// its number from 1; 0 for none.
#[derive(Clone, Copy)]
pub(crate) struct Ends {
    pub(crate) read_piece: usize,
    pub(crate) write_piece: usize,
    pub(crate) read: u64,
    pub(crate) write: u64,
    pub(crate) tell: u64,
}

pub(crate) const SOUND: Ends = Ends {
    read_piece: 8,
    write_piece: 5,
    read: 0,
    write: 0,
    tell: 0,
};

// A run on a script, with these ends and this gate.
pub(crate) fn run_at<R: Threads + Sync + AllocGlobal, G: Gate + Sync>(
    rt: &R,
    words: &[&str],
    script: &[u8],
    ends: Ends,
    gate: &G,
) -> Result<Outcome, Fail> {
    let alloc = rt.alloc();
    let mut line = Vec::new(alloc);
    for word in words {
        line.push(String::from_str(alloc, word)?)?;
    }
    let (read_piece, write_piece) = (ends.read_piece.max(1), ends.write_piece.max(1));
    let mut source = MemSource::new(
        script.to_vec(alloc)?,
        read_piece,
        vec![in alloc; ends.read]?,
    );
    let mut out = MemSink::new(alloc, write_piece, vec![in alloc; ends.write]?);
    let mut err = MemSink::new(alloc, write_piece, vec![in alloc; ends.tell]?);
    let status = semi(rt, alloc, &line, &mut source, &mut out, &mut err, gate);
    Ok(Outcome {
        status,
        out: out.taken().to_vec(alloc)?,
        err: err.taken().to_vec(alloc)?,
    })
}

// A stream whose calls all fail, or take nothing.
#[derive(Drop)]
struct Broken {
    fails: bool,
}

impl Broken {
    fn answer(&self) -> io::Result<usize>
        ensures { IfOk result (λ count. count ≡ 0) }
    {
        if self.fails {
            Err(io::Error::from(ErrorKind::Other))
        } else {
            Ok(0)
        }
    }
}

impl Read for Broken {
    fn read(&mut self, _buf: &mut [u8]) -> io::Result<usize> {
        self.answer()
    }
}

impl Write for Broken {
    fn write(&mut self, _buf: &[u8]) -> io::Result<usize> {
        self.answer()
    }

    fn flush(&mut self) -> io::Result<()> {
        self.answer()?;
        Ok(())
    }
}

#[test]
fn adapters_pass_bytes_on(rt: HostRuntime) -> Result<(), Fail> {
    let mut buf = [0u8; 4];
    let mut source = InputSource::new(b"index".as_slice());
    assert_eq!(rt; source.read(&mut buf), Ok(4));
    assert_eq!(rt; buf, *b"inde");
    assert_eq!(rt; source.read(&mut buf), Ok(1));
    assert_eq!(rt; source.read(&mut buf), Ok(0));
    let mut room = [0u8; 6];
    let mut sink = OutputSink::new(room.as_mut_slice());
    assert_eq!(rt; sink.write(b"index"), Ok(5));
    assert_eq!(rt; sink.write(b""), Ok(0));
    assert_eq!(rt; sink.write(b"27"), Ok(1));
    assert_eq!(rt; sink.write(b"7"), Err(WriteFault::Failed));
    assert_eq!(rt; room, *b"index2");
    let mut deaf = InputSource::new(Broken { fails: true });
    assert_eq!(rt; deaf.read(&mut buf), Err(Failed));
    let mut full = OutputSink::new(Broken { fails: false });
    assert_eq!(rt; full.write(b"index"), Err(WriteFault::Failed));
    let mut closed = OutputSink::new(Broken { fails: true });
    assert_eq!(rt; closed.write(b"index"), Err(WriteFault::Failed));
    Ok(())
}

// A sink over a stream, whose writer keeps back what it takes.
fn buffered<W: Write + Drop>(
    alloc: Global,
    stream: W,
) -> Result<OutputSink<BufWriter<W>>, NoMemory> {
    match BufWriter::new(alloc, stream) {
        Ok(writer) => Ok(OutputSink::new(writer)),
        Err(_) => Err(NoMemory),
    }
}

#[test]
fn what_is_kept_back_is_passed_on(rt: HostRuntime) -> Result<(), Fail> {
    let mut room = [0u8; 5];
    let mut sink = buffered(rt.alloc(), room.as_mut_slice())?;
    assert_eq!(rt; sink.write(b"index"), Ok(5));
    assert_eq!(rt; sink.flush(), Ok(()));
    drop(sink);
    assert_eq!(rt; room, *b"index");
    let mut closed = buffered(rt.alloc(), Broken { fails: true })?;
    assert_eq!(rt; closed.write(b"index"), Ok(5));
    assert_eq!(rt; closed.flush(), Err(WriteFault::Failed));
    Ok(())
}
