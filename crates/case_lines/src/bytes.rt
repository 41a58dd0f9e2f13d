// The bytes of a part.
use crate::Numbers;

// The bytes of a section, and zeros behind them.
pub type Bytes = [u8; 512];

// How far the bytes have been read: how many digits, two for each byte; and whether what follows is text. (No value goes with the flag: an enum is no plainer.)
#[derive(Clone, Copy)]
struct Reading {
    digits: usize,
    quoted: bool,
}

impl Reading {
    // The bytes of the section with which a text begins, behind those that were read: up to a line that does not begin with a space. A remark
    // may stand behind those of each line.
    fn section(&mut self, text: &[u8], to: &mut Bytes) {
        for (n, line) in text.split(|b| *b == b'\n').enumerate() {
            if 0 < n && !line.starts_with(b" ") {
                return;
            }
            for byte in line.iter().take_while(|b| **b != b'#') {
                self.push(*byte, to);
            }
        }
    }

    // One more byte of the text: a hexadecimal digit, a quote, or text between two quotes. The digits are counted by hand, since two make a
    // byte, a byte of text stands for two, and spaces stand between.
    fn push(&mut self, byte: u8, to: &mut Bytes) {
        let at = self.digits;
        if 1023 < at {
            return;
        }
        if byte == b'\'' {
            self.quoted = !self.quoted;
        } else if self.quoted {
            to[at / 2] = byte;
            self.digits += 2;
        } else {
            let digit = match byte {
                b'0'..=b'9' => byte - b'0',
                b'a'..=b'f' => byte - b'a' + 10,
                _ => return,
            };
            to[at / 2] = 16 * (to[at / 2] % 16) + digit;
            self.digits += 1;
        }
    }
}

// The bytes of a part, and how many there are.
pub fn bytes_of(text: &[u8], part: &[u8], to: &mut Bytes) -> usize {
    let mut read = Reading {
        digits: 0,
        quoted: false,
    };
    for byte in part {
        if byte.is_ascii_uppercase() && !read.quoted {
            read.section(from_name(text, *byte), to);
        } else {
            read.push(*byte, to);
        }
    }
    read.digits / 2
}

// The text from where the section with this name begins.
fn from_name(text: &[u8], name: u8) -> &[u8] {
    text.windows(2)
        .position(|pair| pair == [b'=', name].as_slice())
        .map_or(b"", |at| &text[at + 1..])
}

// The line that says what a name stands for, from the name on.
pub fn named(text: &[u8], name: u8) -> &[u8] {
    from_name(text, name)
        .split(|b| *b == b'\n')
        .next()
        .unwrap_or(b"")
}

// Puts the bytes of the changes at their places.
pub fn change(to: &mut Bytes, changes: Numbers) {
    for change in changes.values.chunks_exact(2) {
        if let [Some(place), Some(value)] = change
            && let Some(byte) = to.get_mut(*place as usize)
        {
            *byte = (value % 256) as u8;
        }
    }
}

// The first of the bytes.
pub fn first(bytes: &Bytes, len: usize) -> &[u8] {
    bytes.get(..len).unwrap_or(b"")
}
