//! Bytes from texts.

use std::alloc::{AllocError, Global};

fn digit(letter: u8) -> Option<u8> {
    match letter {
        b'0'..=b'9' => Some(letter - b'0'),
        b'a'..=b'f' => Some(letter - b'a' + 10),
        _ => None,
    }
}

/// The bytes that hexadecimal digits are, two digits each. Whatever is no digit counts for nothing.
pub fn bytes_of(alloc: Global, text: &str) -> Result<Vec<u8>, AllocError> {
    let mut bytes = Vec::new(alloc);
    let mut half: Option<u8> = None;
    for letter in text.as_bytes() {
        if let Some(low) = digit(*letter) {
            match half {
                Some(high) => {
                    bytes.push(high << 4 | low)?;
                    half = None;
                }
                None => half = Some(low),
            }
        }
    }
    Ok(bytes)
}

/// Bytes that are repeated, between others.
#[derive(Clone, Copy)]
pub struct Repeated<'a> {
    pub front: &'a [u8],
    pub part: &'a [u8],
    pub times: u32,
    pub back: &'a [u8],
}

impl<'a> Repeated<'a> {
    /// All of them.
    pub fn bytes(&self, alloc: Global) -> Result<Vec<u8>, AllocError> {
        let mut bytes = Vec::from_slice(alloc, self.front)?;
        for _ in 0..self.times {
            bytes.extend_from_slice(self.part)?;
        }
        bytes.extend_from_slice(self.back)?;
        Ok(bytes)
    }
}
