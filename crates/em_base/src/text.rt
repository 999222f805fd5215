ghost use Rattle.std.specs.Prelude.{◌≡◌, [], ◌++◌, length, IfOk, OnOk, OnErr, string_bytes};
ghost use Rattle.std.specs.Str.{IsAscii};

use crate::memory::NoMemory;
use std::alloc::Global;
use std::marker::Model;
use std::rc::{RcSlice, RcStr};

/// A shared string that contracts see as the list of its bytes.
#[derive(Debug, Drop)]
pub struct Text {
    text: RcStr,
}

impl Model for Text {
    ghost use Rattle.std.specs.Prelude.{List, ℕ};
    ghost use Rattle.std.specs.Rc.{rc_str_bytes};

    ghost Value = { List ℕ };

    ghost view = { λ t. rc_str_bytes t.text };
}

impl Text {
    pub fn from_str(alloc: Global, text: &str) -> Result<Text, NoMemory>
        ensures { IfOk result (λ t. t ≡ text.now) }
    {
        Ok(Text {
            text: RcStr::from_str(alloc, text)?,
        })
    }

    /// The text of ASCII bytes.
    #[tactic(auto, using(crate::proofs::Ascii::ascii_is_utf8))]
    pub fn from_ascii(alloc: Global, bytes: &[u8]) -> Result<Text, NoMemory>
        requires { IsAscii bytes.now }
        ensures { IfOk result (λ t. t ≡ bytes.now) }
    {
        Text::from_string(String::from_utf8_lossy(alloc, bytes)?)
    }

    /// The text of a string, whose bytes aren't copied.
    pub fn from_string(text: String) -> Result<Text, NoMemory>
        ensures { IfOk result (λ t. t ≡ string_bytes text) }
    {
        Ok(Text {
            text: RcStr::from_string(text)?,
        })
    }

    /// The same text, whose bytes aren't copied.
    pub fn share(&self) -> Result<Text, NoMemory>
        ensures { IfOk result (λ t. t ≡ self.now) }
    {
        Ok(Text {
            text: self.text.clone()?,
        })
    }

    pub fn as_str(&self) -> &str
        ensures { result.now ≡ self.now }
    {
        self.text.as_str()
    }

    pub fn as_bytes(&self) -> &[u8]
        ensures { result.now ≡ self.now }
    {
        self.text.as_bytes()
    }
}

/// A `Vec<u8>` that contracts see as the list of its bytes.
#[derive(Debug, Drop)]
pub struct Bytes {
    bytes: Vec<u8>,
}

impl Model for Bytes {
    ghost use Rattle.std.specs.Prelude.{List, ℕ};

    ghost Value = { List ℕ };

    ghost view = { λ b. b.bytes.items };
}

impl Bytes {
    pub fn new(alloc: Global) -> Bytes
        ensures { result ≡ [] }
    {
        Bytes {
            bytes: Vec::new(alloc),
        }
    }

    /// The bytes of a vector. Takes no memory.
    pub fn from_vec(bytes: Vec<u8>) -> Bytes
        ensures { result ≡ bytes.items }
    {
        Bytes { bytes }
    }

    pub fn from_slice(alloc: Global, bytes: &[u8]) -> Result<Bytes, NoMemory>
        ensures { IfOk result (λ b. b ≡ bytes.now) }
    {
        Ok(Bytes {
            bytes: Vec::from_slice(alloc, bytes)?,
        })
    }

    /// The vector of the bytes. Takes no memory.
    pub fn into_vec(self) -> Vec<u8>
        ensures { result.items ≡ self }
    {
        let Bytes { bytes } = self;
        bytes
    }

    pub fn as_slice(&self) -> &[u8]
        ensures { result.now ≡ self.now }
    {
        self.bytes.as_slice()
    }

    pub fn len(&self) -> usize
        ensures { result ≡ length self.now }
    {
        self.bytes.len()
    }

    /// Puts bytes at the end.
    pub fn extend(&mut self, more: &[u8]) -> Result<(), NoMemory>
        ensures ok { OnOk result (self.new ≡ self.old ++ more.now) }
        ensures err { OnErr result (self.new ≡ self.old) }
    {
        self.bytes.extend_from_slice(more)?;
        Ok(())
    }
}

/// A shared `[u8]` that contracts see as the list of its bytes: what a byte string literal denotes.
#[derive(Debug, Drop)]
pub struct ByteText {
    bytes: RcSlice<u8>,
}

impl Model for ByteText {
    ghost use Rattle.std.specs.Prelude.{List, ℕ};
    ghost use Rattle.std.specs.Rc.{rc_slice_items};

    ghost Value = { List ℕ };

    ghost view = { λ b. rc_slice_items b.bytes };
}

impl ByteText {
    /// The text of a vector's bytes, which aren't copied.
    pub fn from_vec(bytes: Vec<u8>) -> Result<ByteText, NoMemory>
        ensures { IfOk result (λ b. b ≡ bytes.items) }
    {
        Ok(ByteText {
            bytes: RcSlice::from_vec(bytes)?,
        })
    }

    pub fn as_slice(&self) -> &[u8]
        ensures { result.now ≡ self.now }
    {
        self.bytes.as_slice()
    }

    /// The same bytes, which aren't copied.
    pub fn share(&self) -> Result<ByteText, NoMemory>
        ensures { IfOk result (λ b. b ≡ self.now) }
    {
        Ok(ByteText {
            bytes: self.bytes.clone()?,
        })
    }
}
