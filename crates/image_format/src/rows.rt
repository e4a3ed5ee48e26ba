// Images by hand, worked out.
ghost use Rattle.std.specs.Prelude.{◌≡◌, [], ◌∷◌, ◌++◌, replicate, codes, Some, Ok, Err, true, false, length};
ghost use Rattle.std.specs.Int.{w64, to_be_bytes};
ghost use Rattle.tape_types.specs.declared.cartridges.Item.TheVariants as item;
ghost use Rattle.tape_types.specs.declared.cartridges.Part.TheVariants as part;
ghost use Rattle.image_format.specs.Images.{Opens, blank, header, image};
ghost use Rattle.image_format.specs.Records.{record_bytes};
ghost use Rattle.image_format.specs.declared.refusal.Refusal.TheVariants.{Header, Record};
ghost use Rattle.image_format.specs.Worked.{small, half, slot, raw, closed, abc, with_ip, cartridge, first_slot};
ghost use Rattle.image_format.specs.Worked.{second_slot, third_slot, made, one_written, one_flushed, in_body, in_gate};
ghost use Rattle.image_format.specs.Worked.{behind_torn, torn_end, of_slot, full_with, full_cartridge};

/// The bytes of slots and records.
pub fn slots_are_told()
    ensures first { raw 1 first_slot ++ closed ≡ 1 ∷ to_be_bytes w64 1 ++ replicate 503 0 }
    ensures block { record_bytes abc ≡ 66 ∷ 0 ∷ 0 ∷ 0 ∷ 3 ∷ codes "abc" }
    ensures size { length (raw 1 third_slot) ≡ 256 }
    ensures told { header small (raw 1 third_slot ++ raw 1 second_slot) ≡ Some third_slot }
{}

/// The cartridges of images, also of some as a crash may leave them.
pub fn images_are_read()
    ensures none { Opens small (with_ip [] []) blank }
    ensures short { Opens small (with_ip [] (raw 1 first_slot)) blank }
    ensures made { image small made ≡ Ok (cartridge [] 0) }
    ensures written { image small one_written ≡ Ok (cartridge [] 1) }
    ensures flushed { image small one_flushed ≡ Ok (cartridge (abc ∷ []) 1) }
    ensures body { image small (in_body 0) ≡ Ok (cartridge [] 1) }
    ensures gate_before { image small (in_gate 0) ≡ Ok (cartridge [] 1) }
    ensures gate_other { image small (in_gate 127) ≡ Ok (cartridge [] 1) }
    ensures gate_after { image small (in_gate 1) ≡ Ok (cartridge (abc ∷ []) 1) }
    ensures torn { image small (torn_end true) ≡ Ok (cartridge (abc ∷ item.Torn ∷ []) 2) }
    ensures whole { image small (torn_end false) ≡ Ok (cartridge (abc ∷ []) 2) }
    ensures full { image small (full_with (record_bytes item.Mark) (record_bytes abc ++ record_bytes item.Mark))
        ≡ Ok full_cartridge }
    ensures behind_torn { image small behind_torn ≡ Ok (cartridge (abc ∷ item.Torn ∷ item.Mark ∷ []) 3) }
{}

/// Images that are no cartridge. A gate that was opened over a body that wasn't durable is one.
pub fn images_are_refused()
    ensures zeros { image small (with_ip [] (replicate 512 0)) ≡ Err Header }
    ensures short { image small (with_ip (record_bytes abc) (raw 1 first_slot)) ≡ Err Header }
    ensures twice { image small (with_ip [] (raw 1 first_slot ++ raw 1 first_slot)) ≡ Err Header }
    ensures flag { image small (with_ip [] (1 ∷ replicate 255 2 ++ closed)) ≡ Err Header }
    ensures capacity { image small (of_slot (half 5 13 false)) ≡ Err Header }
    ensures torn_capacity { image small (of_slot (half 4 13 true)) ≡ Err Header }
    ensures open_body { image small (in_body 1) ≡ Err (Record part.Ip 0) }
    ensures cut_off { image small (of_slot (half 2 12 false)) ≡ Err (Record part.Ip 1) }
    ensures too_many { image small (of_slot (half 3 13 false)) ≡ Err (Record part.Ip 2) }
    ensures too_few { image small (of_slot (half 1 13 false)) ≡ Err (Record part.Ip 1) }
    ensures all { image small (of_slot (half 2 13 false)) ≡ Ok (cartridge (abc ∷ item.Mark ∷ []) 2) }
    ensures data { image small (full_with (record_bytes item.Mark) (record_bytes abc)) ≡ Err (Record part.Dp 1) }
    ensures both { image small (full_with [] (record_bytes abc)) ≡ Err (Record part.Ip 0) }
    ensures past_file { image small (of_slot (half 2 14 false)) ≡ Err (Record part.Ip 2) }
{}
