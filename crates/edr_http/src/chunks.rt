//! The chunk of a piece of a body, and what ends a body (RFC 9112 section 7.1), in the array that the piece is gathered in.
ghost use Rattle.std.specs.Prelude.{◌≡◌, ◌≤◌, ◌<◌, ◌+◌, ◌-◌, ◌++◌, false, length, take, drop, codes};
ghost use Rattle.std.specs.Fmt.{digits, digit_glyph};
ghost use Rattle.edr_http.specs.Chunks.{crlf, chunk, chunked, chunk_length};
ghost use Rattle.edr_http.specs.ChunkedSinkParts.{IsFrame, full_chunk_length, piece_in};

/// A chunk holds at most so many bytes.
pub(crate) const CHUNK_LENGTH: usize = 4096;

/// The chunk of a full piece has so many bytes: the line before it, the piece and a line end.
pub(crate) const FULL_CHUNK_LENGTH: usize = CHUNK_LENGTH + 8;

// Puts bytes into a text at a place.
fn put(text: &mut [u8], at: usize, bytes: &[u8])
    requires { at + length bytes.now ≤ length text.old }
    ensures { text.new ≡ take at text.old ++ (bytes.now ++ drop (at + length bytes.now) text.old) }
{
    text[at..at + bytes.len()].copy_from_slice(bytes);
}

// An array for a piece, with the size of a full one before it, and behind it the end of the chunk and of the body.
pub(crate) fn new_frame() -> [u8; 4109]
    ensures { IsFrame result }
{
    let mut frame = [0; 4109];
    put(&mut frame, 0, b"1000\r\n");
    put(&mut frame, 4102, b"\r\n0\r\n\r\n");
    frame
}

// A digit in hexadecimal.
fn digit(number: usize) -> u8
    requires { number < 16 }
    ensures { result ≡ digit_glyph false number }
{
    if number < 10 {
        48 + number as u8
    } else {
        87 + number as u8
    }
}

// Takes bytes into the piece, behind those that it has.
pub(crate) fn fill(frame: &mut [u8; 4109], used: usize, bytes: &[u8])
    requires room { used + length bytes.now ≤ chunk_length }
    requires framed { IsFrame frame.old }
    ensures framed { IsFrame frame.new }
    ensures piece { piece_in frame.new (used + length bytes.now) ≡ piece_in frame.old used ++ bytes.now }
{
    put(frame, 6 + used, bytes);
}

// Puts the size of a short piece before it, in place of that of a full one, and says where it begins.
fn put_size(frame: &mut [u8], size: usize) -> usize
    requires small { size < chunk_length }
    requires long { 6 ≤ length frame.old }
    requires full { take 6 frame.old ≡ codes "1000\r\n" }
    ensures place { result + length (digits 16 false size) ≡ 4 }
    ensures text { drop result frame.new ≡ digits 16 false size ++ (crlf ++ drop 6 frame.old) }
{
    let last = digit(size % 16);
    if size < 16 {
        put(frame, 3, &[last]);
        return 3;
    }
    let middle = digit(size / 16 % 16);
    if size < 256 {
        put(frame, 2, &[middle, last]);
        return 2;
    }
    put(frame, 1, &[digit(size / 256), middle, last]);
    1
}

// The line before a piece, which is its size in hexadecimal: it stands at the end of the array, and this says where it begins.
pub(crate) fn size_line(size: usize) -> ([u8; 6], usize)
    requires { size ≤ chunk_length }
    ensures bound { result.1 ≤ 6 }
    ensures text { drop result.1 result.0 ≡ digits 16 false size ++ crlf }
{
    let mut line = *b"1000\r\n";
    if size == CHUNK_LENGTH {
        return (line, 0);
    }
    let start = put_size(&mut line, size);
    (line, start)
}

// Makes of the piece the end of a body of which `sent` bytes went out, and says from where to where in the array it stands.
pub(crate) fn last_text(frame: &mut [u8; 4109], used: usize, sent: usize) -> (usize, usize)
    requires within { (used ≤ chunk_length) × (sent ≤ full_chunk_length) }
    requires whole { 0 < sent → used ≡ chunk_length }
    requires framed { IsFrame frame.old }
    ensures bound { (result.0 ≤ result.1) × (result.1 ≤ 4109) }
    ensures text { take (result.1 - result.0) (drop result.0 frame.new) ≡ drop sent (chunked (piece_in frame.old used)) }
{
    if used == CHUNK_LENGTH {
        return (sent, 4109);
    }
    if used == 0 {
        return (FULL_CHUNK_LENGTH, 4109);
    }
    put(frame, 6 + used, b"\r\n0\r\n\r\n");
    let start = put_size(frame, used);
    (start, used + 13)
}
