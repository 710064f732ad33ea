ghost use Rattle.std.specs.Prelude.{◌≡◌, ℕ, List, true};
ghost use Rattle.ca_base.specs.Configuration.{Configuration};
ghost use Rattle.ca_adapter_parts.specs.declared.part.Part.{Part};
ghost use Rattle.ca_adapter_parts.specs.Taking.{is_of_kind, world_with};
ghost use Rattle.ca_model.specs.declared.part_name.PartName.{PartName};
ghost use Rattle.ca_model.specs.machine.Parts.{part_of};
ghost use Rattle.ca_model.specs.machine.World.{Name, World, get, opening_world};
ghost use Rattle.ca_adapter_opening.specs.Opening.{IsOpeningPart, opening_bytes};

/// Whatever a world has elsewhere, with a part of the opening in it each thing that stands in that part is as in the
/// world before the first event, whose memory has the contents.
pub fn opening_parts_are_the_opening_world()
    ensures { (c : Configuration) (contents : List (List ℕ)) (name : PartName) (part : Part) (w : World) (n : Name)
        → IsOpeningPart c contents name part → part_of n ≡ name
        → get (world_with name part w) n ≡ get (opening_world (opening_bytes c contents)) n }
{}

/// A part of the opening is of its name's kind, as it has to be where it is taken up.
pub fn opening_parts_are_of_their_kinds()
    ensures { (c : Configuration) (contents : List (List ℕ)) (name : PartName) (part : Part)
        → IsOpeningPart c contents name part → is_of_kind name part ≡ true }
{}
