ghost use Rattle.std.specs.Prelude.{◌≡◌, ◌<◌, ℕ, true, Some, map};
ghost use Rattle.std.specs.List.{range_with_len};
ghost use Rattle.ca_base.specs.Configuration.{Configuration, part_count};
ghost use Rattle.ca_model.specs.declared.part_name.PartName.{PartName};
ghost use Rattle.ca_model.specs.machine.Parts.{IsAmong, is_configured_part};
ghost use Rattle.ca_model.specs.machine.Sound.{AreLimited};
ghost use Rattle.ca_model_places.specs.Places.{all_parts, place_of};

/// Where a configuration keeps to its limits, the places of all parts in their row are 0, 1, 2 and so on, as many as
/// `part_count` says; each configured part stands there. So a place is below that count, and is the place of one part
/// alone.
pub fn each_part_has_a_place()
    ensures numbered { (c : Configuration) → AreLimited c
        → map (place_of c) (all_parts c) ≡ map Some (range_with_len 0 (part_count c)) }
    ensures each { (c : Configuration) (p : PartName) → AreLimited c
        → is_configured_part c p ≡ true → IsAmong (all_parts c) p }
    ensures below { (c : Configuration) (p : PartName) (n : ℕ) → AreLimited c
        → place_of c p ≡ Some n → n < part_count c }
    ensures apart { (c : Configuration) (p q : PartName) (n : ℕ) → AreLimited c
        → place_of c p ≡ Some n → place_of c q ≡ Some n → p ≡ q }
{}
