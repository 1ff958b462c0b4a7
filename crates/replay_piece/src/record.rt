// A recorded line: two hexadecimal digits a byte, and a newline.

// The first n bytes of a line; none where a character is no digit or the newline is missing.
pub fn decoded(line: &[u8; 149], n: usize) -> Option<[u8; 74]> {
    if 74 < n || line[2 * n] != 10 {
        return None;
    }
    let mut bytes = [0u8; 74];
    for i in 0..n {
        bytes[i] = hexadecimal::byte(line[2 * i], line[2 * i + 1])?;
    }
    Some(bytes)
}
