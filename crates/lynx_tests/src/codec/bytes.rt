//! Bytes as tests write them.
use lynx_names::Memory;
use std::alloc::Global;

fn hex_digit(byte: u8) -> Option<u8> {
    match byte {
        b'0'..=b'9' => Some(byte - b'0'),
        b'a'..=b'f' => Some(byte - b'a' + 10),
        _ => None,
    }
}

/// The bytes of a text of hex digits, whatever stands between them.
pub fn hex(alloc: Global, text: &str) -> Result<Vec<u8>, Memory> {
    let mut bytes = Vec::new(alloc);
    let mut high = None;
    for byte in text.as_bytes() {
        if let Some(digit) = hex_digit(*byte) {
            match high {
                None => high = Some(digit),
                Some(first) => {
                    bytes.push(first.wrapping_mul(16).wrapping_add(digit))?;
                    high = None;
                }
            }
        }
    }
    Ok(bytes)
}

/// So many of each byte, run behind run.
pub fn runs(alloc: Global, parts: &[&[(u16, u8)]]) -> Result<Vec<u8>, Memory> {
    let mut bytes = Vec::new(alloc);
    for part in parts {
        for &(count, byte) in *part {
            for _ in 0..count {
                bytes.push(byte)?;
            }
        }
    }
    Ok(bytes)
}
