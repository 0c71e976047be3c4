//! Texts that are parted by a byte.

ghost use Rattle.std.specs.Prelude.{◌≡◌, ◌≤◌, ◌<◌, ◌==◌, ◌∷◌, [], not, length, IfSome, MatchOption};
ghost use Rattle.std.specs.List.{prefix_len, slice_split};

/// The bytes before the first byte `at`, and those behind it where it is there.
pub fn cut(bytes: &[u8], at: u8) -> (&[u8], Option<&[u8]>)
    ensures cut { MatchOption result.1 (slice_split (λ byte. byte == at) bytes.now ≡ result.0.now ∷ [])
        (λ behind. slice_split (λ byte. byte == at) bytes.now ≡ result.0.now ∷ slice_split (λ byte. byte == at)
        behind.now) }
    ensures shorter { IfSome result.1 (λ behind. length behind.now < length bytes.now) }
{
    let len = len_before(bytes, at);
    if len < bytes.len() {
        (&bytes[..len], Some(&bytes[len + 1..]))
    } else {
        (bytes, None)
    }
}

/// How many bytes stand before the first byte `at`.
fn len_before(bytes: &[u8], at: u8) -> usize
    ensures len { result ≡ prefix_len (λ byte. not (byte == at)) bytes.now }
    ensures within { result ≤ length bytes.now }
{
    bytes.iter().take_while(|byte| **byte != at).count()
}
