// Claims: keys, each with the worker that is to make the frame. They are few: a worker has at most as many as the graph
// is deep.
ghost use Rattle.std.specs.Prelude.{◌≡◌, ◌+◌, true};
ghost use Rattle.std.specs.List.{position_or_len};
ghost use Rattle.serve_core.specs.Holds.{newest};
ghost use Rattle.serve_machine.specs.Holdings.{claims_of};
ghost use Rattle.frame_cache.specs.Cached.{same_key, at_key, has_key, without_key};

use fv_plane::Key;

// Where the claim on a key stands, or the number of claims.
fn index_of(claims: &[(Key, u32)], key: Key) -> usize
    ensures { result ≡ position_or_len (λ claim. same_key key claim.0) claims.now }
{
    let mut at = 0;
    for (other, _) in claims {
        if key == *other {
            return at;
        }
        at += 1;
    }
    at
}

/// The worker that has the claim on a key.
pub(crate) fn claimant(claims: &[(Key, u32)], key: Key) -> Option<u32>
    ensures { result ≡ at_key key claims.now }
{
    for (other, worker) in claims {
        if key == *other {
            return Some(*worker);
        }
    }
    None
}

/// The worker's claim that stands last.
pub(crate) fn newest_of(claims: &[(Key, u32)], worker: u32) -> Option<Key>
    ensures { result ≡ newest (claims_of worker claims.now) }
{
    let mut found = None;
    for (key, other) in claims {
        if *other == worker {
            found = Some(*key);
        }
    }
    found
}

/// Ends the claim on a key.
pub(crate) fn close(claims: &mut Vec<(Key, u32)>, key: Key)
    requires { has_key key claims.old.items ≡ true }
    ensures { claims.new.items ≡ without_key key claims.old.items }
{
    let at = index_of(claims, key);
    claims.remove(at);
}
