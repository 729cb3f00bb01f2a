//! Each object of the outside on a few bytes, with the calls that fail; then names and refusals.
ghost use Rattle.std.specs.Prelude.{◌≡◌, ◌≢◌, IsErrOf, IsUtf8, Err};
ghost use Rattle.edr_base.specs.Outside.{Rose};
ghost use Rattle.edr_base.specs.Calls.{SinkLent, Writes};

use edr_base::{
    Failed, Files, Items, Lent, Link, MemoryFiles, MemoryLink, MemorySink, MemorySource, QuietSink,
    QuietSource, ReadStop, RealFiles, RealSink, RealSource, Refusal, SendFault, Sink, Source, Stop,
    Text, is_blank, is_name, is_utf8, is_utf8_where_given, read_all, send, settle,
};
use std::alloc::Global;
use std::io::{self, ErrorKind, Read, Write};
use std::rt::HostRuntime;

// What is done with an object is written as words, one a call, each with its answer behind `=`: `read=ab` is a read into
// four bytes that gives two of them, `write:abc=ab` a write that takes two bytes of three, `flush=`, `open:name=` and
// `connect:host=` calls that give nothing. The answer `!` is a fault, `?` want of memory.

// A list of some items, and of none where memory is wanting.
fn list_of<T: Copy + Drop>(alloc: Global, items: &[T]) -> Vec<T> {
    let mut list = Vec::new(alloc);
    let _ = list.extend_from_slice(items);
    list
}

// The bytes of a text, which are UTF-8.
fn str_bytes(text: &str) -> &[u8]
    ensures { IsUtf8 result.now }
{
    text.as_bytes()
}

fn is_read<S: Source>(source: &mut S, answer: &str) -> bool {
    let mut buffer = [0u8; 4];
    match source.read(&mut buffer) {
        Ok(count) => &buffer[..count] == answer.as_bytes(),
        Err(Failed) => answer == "!",
    }
}

fn are_read<S: Source>(source: &mut S, words: &str) -> bool {
    let mut whole = true;
    for word in words.split(' ') {
        let (_, answer) = word.split_once('=').unwrap_or((word, "?"));
        whole = is_read(source, answer) && whole;
    }
    whole
}

fn stop_is(stop: Stop, answer: &str) -> bool {
    match stop {
        Stop::Failed => answer == "!",
        Stop::OutOfMemory => answer == "?",
    }
}

fn is_done(outcome: Result<(), Stop>, answer: &str) -> bool {
    match outcome {
        Ok(()) => answer.is_empty(),
        Err(stop) => stop_is(stop, answer),
    }
}

fn is_written<K: Sink>(sink: &mut K, call: &str, answer: &str) -> bool {
    let Some((_, piece)) = call.split_once(':') else {
        return is_done(sink.flush(), answer);
    };
    match sink.write(piece.as_bytes()) {
        Ok(count) => &piece.as_bytes()[..count] == answer.as_bytes(),
        Err(stop) => stop_is(stop, answer),
    }
}

fn are_written<K: Sink>(sink: &mut K, words: &str) -> bool {
    let mut whole = true;
    for word in words.split(' ') {
        let (call, answer) = word.split_once('=').unwrap_or((word, "?"));
        whole = is_written(sink, call, answer) && whole;
    }
    whole
}

fn are_opened<F: Files>(files: &mut F, words: &str) -> bool {
    let mut whole = true;
    for word in words.split(' ') {
        let (call, answer) = word.split_once('=').unwrap_or((word, "?"));
        whole = match call.split_once(':') {
            Some((_, name)) => is_done(files.open(str_bytes(name)), answer),
            None => is_read(files, answer),
        } && whole;
    }
    whole
}

fn is_linked<L: Link>(link: &mut L, call: &str, answer: &str) -> bool {
    match call {
        "read" => is_read(link, answer),
        "connect:host" => is_done(link.connect(str_bytes("host"), 80), answer),
        _ => is_written(link, call, answer),
    }
}

fn are_linked<L: Link>(link: &mut L, words: &str) -> bool {
    let mut whole = true;
    for word in words.split(' ') {
        let (call, answer) = word.split_once('=').unwrap_or((word, "?"));
        whole = is_linked(link, call, answer) && whole;
    }
    whole
}

fn is_kept(text: &Text, items: &Items<u64>) -> bool {
    text.bytes() == b"grid".as_slice() && items.items() == [3, 1, 2].as_slice()
}

#[test]
fn texts_and_items_keep_their_lists(rt: HostRuntime) {
    let text = Text::from_vec(list_of(rt.alloc(), b"grid"));
    let items = Items::of(list_of(rt.alloc(), &[3, 1, 2]));
    assert!(rt; is_kept(&text, &items) && items.into_vec().as_slice() == [3, 1, 2].as_slice());
}

// Bytes come in pieces of the cut; of the first source the second call fails.
#[test]
fn sources_give_cut_pieces(rt: HostRuntime) {
    let letters = list_of(rt.alloc(), b"abcde");
    let mut source = MemorySource::of(letters, 2, list_of(rt.alloc(), &[2]));
    assert!(rt; are_read(&mut source, "read=ab read=! read=cd read=e read="));
    let mut source = QuietSource::of(list_of(rt.alloc(), b"abcdefg"), 5);
    assert!(rt; are_read(&mut source, "read=abcd read=efg read="));
}

// Whether this is what is read of a source up to a limit; `>` stands where more came, `!` where a read failed.
fn is_read_whole(alloc: Global, source: &mut MemorySource, limit: u16, answer: &str) -> bool {
    match read_all(alloc, source, limit as usize) {
        Ok(bytes) => bytes.as_slice() == answer.as_bytes(),
        Err(ReadStop::TooLong) => answer == ">",
        Err(ReadStop::ReadFault) => answer == "!",
        Err(ReadStop::OutOfMemory) => answer == "?",
    }
}

// Reads ten digits, three a read, up to a limit, and then what is left of them.
fn are_digits_read(alloc: Global, limit: u16, fails: &[u64], answer: &str, left: &str) -> bool {
    let digits = list_of(alloc, b"0123456789");
    let mut source = MemorySource::of(digits, 3, list_of(alloc, fails));
    is_read_whole(alloc, &mut source, limit, answer) && are_read(&mut source, left)
}

// Of the last source the second call fails: that is answered, and nothing is read behind it.
#[test]
fn a_source_is_read_up_to_the_limit(rt: HostRuntime) {
    let alloc = rt.alloc();
    assert!(rt; are_digits_read(alloc, 10, &[], "0123456789", "read="));
    assert!(rt; are_digits_read(alloc, 9, &[], ">", "read="));
    assert!(rt; are_digits_read(alloc, 10, &[2], "!", "read=345 read=678 read=9 read="));
}

// A piece is sent whole, however it is cut; a fault leaves a beginning.
fn takes_cut_pieces(sink: &mut MemorySink) -> bool {
    are_written(sink, "write:abcd=abc write:d=! write:= flush=!")
        && send(sink, b"defgh").is_ok()
        && send(sink, b"ijklm") == Err(SendFault::WriteFault)
        && send(sink, b"mn").is_ok()
        && settle(sink).is_ok()
        && sink.written() == b"abcdefghijkmn".as_slice()
}

#[test]
fn a_sink_takes_cut_pieces_and_fails_by_number(rt: HostRuntime) {
    let mut sink = MemorySink::of(rt.alloc(), 3, list_of(rt.alloc(), &[2, 4, 8]));
    assert!(rt; takes_cut_pieces(&mut sink));
}

// Files of a name and a content each, with a blank between.
fn files_of(alloc: Global, lines: &str) -> MemoryFiles {
    let mut files = Vec::new(alloc);
    for line in lines.lines() {
        let (name, content) = line.split_once(' ').unwrap_or((line, ""));
        let name = list_of(alloc, name.as_bytes());
        let _ = files.push((name, list_of(alloc, content.as_bytes())));
    }
    MemoryFiles::of(alloc, files, 100, Vec::new(alloc))
}

#[test]
fn files_are_opened_by_name(rt: HostRuntime) {
    let mut files = files_of(rt.alloc(), "a first\nb second\na never");
    assert!(rt;
        are_opened(
            &mut files,
            "read= open:b= read=seco read=nd open:a= read=firs open:a= read=firs read=t open:c=! read="
        )
    );
}

fn is_connected(link: &mut MemoryLink) -> bool {
    are_linked(
        link,
        "write:ping=? read= flush= connect:host=! connect:host=",
    ) && are_linked(link, "write:ping=ping read=pong read=")
        && link.written() == b"ping".as_slice()
}

#[test]
fn a_link_gives_and_takes_once_connected(rt: HostRuntime) {
    let pong = list_of(rt.alloc(), b"pong");
    let mut link = MemoryLink::of(rt.alloc(), pong, 100, list_of(rt.alloc(), &[4]));
    assert!(rt; is_connected(&mut link));
}

fn takes_bytes(bytes: &mut Vec<u8>) -> bool {
    are_written(&mut RealSink::of(bytes), "write:real=real flush=")
}

#[test]
fn adapters_pass_bytes_on(rt: HostRuntime) {
    let mut bytes = Vec::new(rt.alloc());
    assert!(rt; takes_bytes(&mut bytes) && bytes.as_slice() == b"real".as_slice());
    assert!(rt;
        are_read(
            &mut RealSource::of(b"realm".as_slice()),
            "read=real read=m read="
        )
    );
}

// A reader and a writer whose first call is interrupted and whose third one fails. It reads one byte and takes two.
#[derive(Drop)]
struct Shaky {
    calls: u8,
    flushes: u8,
}

impl Shaky {
    fn new() -> Shaky {
        Shaky {
            calls: 0,
            flushes: 0,
        }
    }

    fn call(&mut self) -> io::Result<()> {
        self.calls = self.calls.saturating_add(1);
        match self.calls {
            1 => Err(io::Error::from(ErrorKind::Interrupted)),
            3 => Err(io::Error::from(ErrorKind::BrokenPipe)),
            _ => Ok(()),
        }
    }
}

impl Read for Shaky {
    fn read(&mut self, buf: &mut [u8]) -> io::Result<usize> {
        self.call()?;
        if buf.is_empty() {
            return Ok(0);
        }
        buf[0] = b'r';
        Ok(1)
    }
}

impl Write for Shaky {
    fn write(&mut self, piece: &[u8]) -> io::Result<usize> {
        self.call()?;
        Ok(piece.len().min(2))
    }

    fn flush(&mut self) -> io::Result<()> {
        self.call()?;
        self.flushes = self.flushes.saturating_add(1);
        Ok(())
    }
}

fn gives_from(shaky: &mut Shaky, words: &str) -> bool {
    are_read(&mut RealSource::of(shaky), words)
}

fn takes_to(shaky: &mut Shaky, words: &str) -> bool {
    are_written(&mut RealSink::of(shaky), words)
}

// After an interruption the same is tried again; another error is answered once, and the next call works.
#[test]
fn adapters_answer_errors(rt: HostRuntime) {
    assert!(rt; gives_from(&mut Shaky::new(), "read=r read=! read=r"));
    assert!(rt; takes_to(&mut Shaky::new(), "write:abc=ab write:abc=! write:abc=ab"));
}

// No contract tells that a flush is passed on.
#[test]
fn flushes_are_passed_on(rt: HostRuntime) {
    let mut shaky = Shaky::new();
    assert!(rt; takes_to(&mut shaky, "flush= flush=! flush="));
    assert!(rt; shaky.calls == 4 && shaky.flushes == 2);
}

// Sends a text and flushes through a sink that is lent: what the lender's sink holds afterwards is known.
#[tactic(auto, using(edr_base::specs::LentParts::held_name, edr_base::specs::LentParts::held_below))]
fn send_through<K: Sink>(sink: &mut K, text: &[u8]) -> Result<(), SendFault>
    ensures bytes { Writes result text.now (K.written sink.old) (K.written sink.new) }
    ensures flushed { K.flushed sink.new ≡ K.flushed sink.old }
    ensures lent { SinkLent (K.beside sink.old) (K.beside sink.new) (K.faults sink.old) (K.faults sink.new) }
    ensures cause { IsErrOf result SendFault.WriteFault → Rose (K.faults sink.old) (K.faults sink.new) }
{
    let mut layer = Lent::of(sink);
    send(&mut layer, text)
}

fn takes_lent(sink: &mut MemorySink) -> bool {
    are_written(&mut Lent::of(sink), "write:abc=ab flush= write:c=!")
        && send_through(sink, b"cde").is_ok()
        && sink.written() == b"abcde".as_slice()
}

#[test]
fn a_lent_sink_takes_what_its_sink_takes(rt: HostRuntime) {
    let mut sink = MemorySink::of(rt.alloc(), 2, list_of(rt.alloc(), &[3]));
    assert!(rt; takes_lent(&mut sink));
}

// A sink that never fails: only memory can be wanting.
fn send_quietly(sink: &mut QuietSink, text: &[u8]) -> Result<(), SendFault>
    ensures { result ≢ Err SendFault.WriteFault }
{
    send(sink, text)
}

fn takes_quietly(sink: &mut QuietSink) -> bool {
    are_written(sink, "write:abc=ab write:= flush=")
        && send_quietly(sink, b"cde").is_ok()
        && sink.written() == b"abcde".as_slice()
}

#[test]
fn a_quiet_sink_cuts_and_never_fails(rt: HostRuntime) {
    assert!(rt; takes_quietly(&mut QuietSink::of(rt.alloc(), 2)));
}

// A file that isn't there is a fault, and nothing is open after it.
#[test]
fn a_file_that_is_missing_is_a_fault(rt: HostRuntime) {
    let mut files = RealFiles::new(rt);
    assert!(rt; are_opened(&mut files, "read= open:no-such-folder/no-such-file=! read="));
}

fn are_names(texts: &str, wanted: bool) -> bool {
    let mut whole = true;
    for text in texts.split(';') {
        whole = is_name(text.as_bytes()) == wanted && whole;
    }
    whole
}

// Whether a byte of two alone is no name, and one that begins no character no text.
fn are_no_texts() -> bool {
    !is_name(b"\xc3") && !is_name(b"\xa9") && is_utf8(b"") && !is_utf8(b"\xff")
}

// Whether some bytes are all blanks.
fn are_blanks(bytes: &[u8]) -> bool {
    let mut whole = true;
    for byte in bytes {
        whole = is_blank(*byte) && whole;
    }
    whole
}

#[test]
fn names_have_no_comma_and_no_control_byte(rt: HostRuntime) {
    assert!(rt; are_names("air;Luft-2 m;a b;é", true) && are_names(";a,b;a\tb;a\x7f", false));
    assert!(rt; is_name(&[b'a'; 128]) && !is_name(&[b'a'; 129]) && are_no_texts());
    assert!(rt; are_blanks(b" \t\n\r") && !is_blank(11));
    let wrong = Some(Text::from_vec(list_of(rt.alloc(), b"\xff")));
    assert!(rt; is_utf8_where_given(&None) && !is_utf8_where_given(&wrong));
}

#[test]
fn refusals_have_their_lines(rt: HostRuntime) {
    assert!(rt; Refusal::BadHead.number() == 1);
    assert!(rt; Refusal::TooLarge.number() == 26);
    assert!(rt; Refusal::MethodNotOffered.status() == 405);
    assert!(rt; Refusal::NoSamples.code() == b"NoSamples".as_slice());
    assert!(rt; Refusal::NoSamples.body() == b"{\"code\":\"NoSamples\",\"number\":25}".as_slice());
}
