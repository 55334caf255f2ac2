// Bytes written into a lent buffer, at a place or at its front.
ghost use Rattle.std.specs.Prelude.{◌≤◌, ◌≡◌, ◌+◌, length};
ghost use Rattle.buffers.specs.Bytes.{put};

// The rest of the buffer is unchanged.
#[tactic(auto, unfolding(crate::specs::Bytes::put))]
pub fn put_at(out: &mut [u8], place: usize, bytes: &[u8])
    requires { place + length bytes.now ≤ length out.old }
    ensures { out.new ≡ put out.old place bytes.now }
{
    out[place..place + bytes.len()].copy_from_slice(bytes);
}

// At the front.
pub fn put_front(out: &mut [u8], bytes: &[u8])
    requires { length bytes.now ≤ length out.old }
    ensures { out.new ≡ put out.old 0 bytes.now }
{
    put_at(out, 0, bytes);
}
