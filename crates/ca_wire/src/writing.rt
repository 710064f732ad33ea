ghost use Rattle.std.specs.Prelude.{◌≡◌, ◌++◌, length};
ghost use Rattle.ca_wire.specs.Writing.{HasRoom, Grows};

/// Adds bytes at the end of a list that has room for them.
#[inline(always)]
pub fn put(bytes: &[u8], out: &mut Vec<u8>)
    requires { HasRoom out.old (length bytes.now) }
    ensures items { out.new.items ≡ out.old.items ++ bytes.now }
    ensures room { Grows out.old out.new (length bytes.now) }
{
    let _ = out.extend_from_slice(bytes);
}
