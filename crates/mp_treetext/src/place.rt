ghost use Rattle.std.specs.Prelude.{◌≡◌, ◌<◌, ◌≤◌, ◌^◌, length, drop, get_or};
ghost use Rattle.mp_treetext.specs.Places.{line_end, line_length, line_start, spaces_at, spaces_in_front};

/// The byte at this place; 0 where there is none.
fn byte_at(source: &[u8], at: u32) -> u8
    ensures { result ≡ get_or source.now at 0 }
{
    match source.get(at as usize) {
        Some(byte) => *byte,
        None => 0,
    }
}

/// The bytes from this place on.
fn bytes_from(source: &[u8], at: u32) -> &[u8]
    ensures { result.now ≡ drop at source.now }
{
    if at as usize <= source.len() {
        &source[at as usize..]
    } else {
        b"".as_slice()
    }
}

/// The first byte of the line on which this place is.
pub(crate) fn line_start(source: &[u8], at: u32) -> u32
    ensures { result ≡ line_start source.now at }
{
    let mut start = at;
    while start > 0 {
        if byte_at(source, start - 1) == b'\n' {
            return start;
        }
        start -= 1;
    }
    start
}

/// The number of spaces before the first other byte.
fn spaces_in_front(bytes: &[u8]) -> u64
    ensures { result ≡ spaces_in_front bytes.now }
{
    let mut count = 0u64;
    for byte in bytes {
        if *byte != b' ' {
            return count;
        }
        count += 1;
    }
    count
}

/// The number of spaces that the line of this place begins with.
pub(crate) fn spaces_at(source: &[u8], at: u32) -> u64
    ensures { result ≡ spaces_at source.now at }
{
    spaces_in_front(bytes_from(source, line_start(source, at)))
}

/// The number of bytes before the first newline.
fn line_length(bytes: &[u8]) -> u64
    ensures length { result ≡ line_length bytes.now }
    ensures within { result ≤ length bytes.now }
{
    let mut count = 0u64;
    for byte in bytes {
        if *byte == b'\n' {
            return count;
        }
        count += 1;
    }
    count
}

/// The newline that ends the line on which this place is; the length of the source where there is none.
pub(crate) fn line_end(source: &[u8], at: u32) -> u32
    requires { length source.now < 2 ^ 32 }
    ensures { result ≡ line_end source.now at }
{
    let left = line_length(bytes_from(source, at));
    at + left as u32
}
