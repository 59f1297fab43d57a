// Buffers that are lent: made all zeros; whether one is all of one byte.
#![tactic(auto)]

ghost use Rattle.std.specs.Prelude.{◌≡◌, eqb, length, replicate};
ghost use Rattle.std.specs.List.{list_all};

pub fn clear_bytes(buf: &mut [u8])
    ensures { buf.new ≡ replicate (length buf.old) 0 }
{
    buf.fill(0);
}

pub fn clear_words(words: &mut [u32])
    ensures { words.new ≡ replicate (length words.old) 0 }
{
    words.fill(0);
}

// Whether each byte is v.
pub fn is_all(buf: &[u8], v: u8) -> bool
    ensures { result ≡ list_all (λ b. eqb b v) buf.now }
{
    buf.iter().all(|b| *b == v)
}
