//! Bytes as tests write them.
use lynx_names::Memory;
use std::alloc::Global;

fn hex_digit(byte: u8) -> Option<u8> {
    match byte {
        b'0'..=b'9' => Some(byte - b'0'),
        b'a'..=b'f' => Some(byte - b'a' + 10),
        _ => None,
    }
}

/// Adds the bytes of a text of hex digits, whatever stands between them.
fn add(bytes: &mut Vec<u8>, text: &str) -> Result<(), Memory> {
    let mut high = None;
    for byte in text.as_bytes() {
        if let Some(digit) = hex_digit(*byte) {
            match high {
                None => high = Some(digit),
                Some(first) => {
                    bytes.push(first.wrapping_mul(16).wrapping_add(digit))?;
                    high = None;
                }
            }
        }
    }
    Ok(())
}

/// The bytes of texts of hex digits.
pub fn hex(alloc: Global, texts: &[&str]) -> Result<Vec<u8>, Memory> {
    let mut bytes = Vec::new(alloc);
    for text in texts {
        add(&mut bytes, text)?;
    }
    Ok(bytes)
}
