ghost use Rattle.std.specs.Prelude.{◌<◌};
ghost use Rattle.ca_connection.specs.Invariant.{Sound};
ghost use Rattle.ca_connection.specs.Layout.{Direction};
ghost use Rattle.ca_connection.specs.Link.{Link, opening};
ghost use Rattle.ca_connection.specs.Moves.{Move, Reached};

/// The seven facts hold before the first packet.
pub fn opening_is_sound()
    ensures { (d : Direction) → Sound d (opening d) }
{}

/// Every move keeps the seven facts.
pub fn move_keeps_sound()
    ensures { (d : Direction) (l new : Link) → 0 < d.mtu → Sound d l → Move d l new → Sound d new }
{}

/// The seven facts hold of every link that moves lead to.
pub fn link_is_sound()
    ensures { (d : Direction) (l : Link) → Reached d l → Sound d l }
{}
