// Bytes in hexadecimal.
ghost use Rattle.std.specs.Prelude.{◌≡◌, ◌<◌, ◌++◌, IfOk, length};
ghost use Rattle.caselines.specs.Hex.{digit, hex_bytes};

use std::alloc::{AllocError, Global};

// A hexadecimal digit.
fn digit(b: u8) -> Option<u8>
    ensures { result ≡ digit b }
{
    match b {
        b'0'..=b'9' => Some(b - b'0'),
        b'a'..=b'f' => Some(b - b'a' + 10),
        _ => None,
    }
}

/// The bytes that a line gives, two digits each; what is no digit is passed over.
pub fn bytes_of(alloc: Global, line: &[u8]) -> Result<Vec<u8>, AllocError>
    ensures { IfOk result (λ v. v.items ≡ hex_bytes line.now) }
{
    let mut bytes = Vec::new(alloc);
    // two places at a time, as `hex_bytes` of the contract goes over the line: over pairs it would ask a lemma that says the same of pairs
    let mut rest = line;
    while let [high, low, after @ ..] = rest {
        if let (Some(high), Some(low)) = (digit(*high), digit(*low)) {
            bytes.push(high * 16 + low)?;
        }
        rest = after;
    }
    Ok(bytes)
}

#[cfg(test)]
mod tests {
    use super::*;

    #[test]
    fn gives_bytes(rt: HostRuntime) {
        let bytes = bytes_of(rt.alloc(), b"00ff;x7a1");
        assert!(rt; bytes.is_ok_and(|bytes| bytes.as_slice() == [0, 255, 122].as_slice()));
    }
}
