//! Where the head of a request ends.
ghost use Rattle.std.specs.Prelude.{ℕ, ◌≡◌, ◌≤◌, length, IfSome};
ghost use Rattle.desk_http.specs.HeadEnds.{empty_line_end, front, head_end};

/// How far the first empty line goes, if there is one.
#[tactic(auto, unfolding(crate::specs::HeadEnds::empty_line_end))]
fn find_empty_line(bytes: &[u8]) -> Option<usize>
    ensures end { result ≡ empty_line_end bytes.now }
    ensures within { IfSome result (λ n. n ≤ length bytes.now) }
{
    for i in 0..bytes.len() {
        let rest = &bytes[i..];
        if rest.starts_with(b"\n\n") {
            return Some(i + 2);
        }
        if rest.starts_with(b"\n\r\n") {
            return Some(i + 3);
        }
    }
    None
}

/// How long the head is, if it ends in these bytes.
#[tactic(auto, unfolding(crate::specs::HeadEnds::head_end))]
pub fn find_head_end(bytes: &[u8]) -> Option<usize>
    ensures end { result ≡ head_end bytes.now }
    ensures within { IfSome result (λ n. n ≤ length bytes.now) }
{
    for (i, b) in bytes.iter().enumerate() {
        if *b != b'\r' && *b != b'\n' {
            return match find_empty_line(&bytes[i..]) {
                Some(n) => Some(n + i),
                None => None,
            };
        }
    }
    None
}

/// No more of the bytes than a head may have.
#[tactic(auto, unfolding(crate::specs::HeadEnds::front), using(crate::proofs::Arriving::all_short))]
pub fn front_of(bytes: &[u8]) -> &[u8]
    ensures front { result.now ≡ front bytes.now }
    ensures no_longer { length result.now ≤ length bytes.now }
{
    if bytes.len() < 8192 {
        bytes
    } else {
        &bytes[..8192]
    }
}
