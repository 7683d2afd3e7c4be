// Byte search.
ghost use Rattle.std.specs.Prelude.{◌≡◌};
ghost use Rattle.device.specs.Search.{IsFirstPlace, first_place};

/// The place, counted from 0, from which the bytes of `needle` first stand together in `s`; none where they stand nowhere. The empty needle
/// stands at 0, and so this goes by places and not by `windows`, of which an empty needle has none.
pub fn find(s: &[u8], needle: &[u8]) -> Option<usize>
    ensures first { IsFirstPlace needle.now s.now result }
    ensures value { result ≡ first_place needle.now s.now }
{
    if s.len() < needle.len() {
        return None;
    }
    let last = s.len() - needle.len();
    (0..last + 1).position(|i| &s[i..i + needle.len()] == needle)
}
