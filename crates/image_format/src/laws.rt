// That the relations on bytes and the functions that compute say the same.
ghost use Rattle.std.specs.Prelude.{ℕ, ◌≡◌, List, length, Some, Ok, Err, Result};
ghost use Rattle.tape_types.specs.declared.cartridges.Cartridge.{Cartridge};
ghost use Rattle.tape_types.specs.declared.cartridges.Item.{Item};
ghost use Rattle.tape_types.specs.declared.cartridges.Limits.{Limits};
ghost use Rattle.byte_disk.specs.Files.{Files, AreBytes};
ghost use Rattle.image_format.specs.declared.heads.Head.{Head};
ghost use Rattle.image_format.specs.declared.refusal.Refusal.{Refusal};
ghost use Rattle.image_format.specs.declared.values.Half.{Half};
ghost use Rattle.image_format.specs.declared.values.SlotValue.{SlotValue};
ghost use Rattle.image_format.specs.Images.{IsSaid, image};
ghost use Rattle.image_format.specs.Records.{AreRecords, IsFaultAt, IsHead, head_bytes, head_of, items_in};
ghost use Rattle.image_format.specs.Values.{IsSized, IsValue, value_bytes, value_of};

/// What a value says. What is written of one reads back.
pub fn values_are_told()
    ensures written { (s : SlotValue) → IsSized s → IsValue (value_bytes s) s }
    ensures found { (raw : List ℕ) (s : SlotValue) → IsValue raw s → value_of raw ≡ Some s }
    ensures only { (raw : List ℕ) (s : SlotValue) → length raw ≡ 255 → value_of raw ≡ Some s → IsValue raw s }
{}

/// The bytes of heads. What is written of a head reads back.
pub fn heads_are_told()
    ensures found { (h : Head) → IsHead h → head_of (head_bytes h) ≡ Some h }
    ensures form { (bytes : List ℕ) (h : Head) → AreBytes bytes → head_of bytes ≡ Some h → IsHead h }
    ensures only { (bytes : List ℕ) (h : Head) → AreBytes bytes → head_of bytes ≡ Some h → bytes ≡ head_bytes h }
{}

/// The items in the front of a file, and the first record at fault.
pub fn records_are_told()
    ensures found { (h : Half) (file : List ℕ) (items : List Item)
        → AreRecords h file items → items_in h file ≡ Ok items }
    ensures only { (h : Half) (file : List ℕ) (items : List Item) → AreBytes file
        → items_in h file ≡ Ok items → AreRecords h file items }
    ensures fault { (h : Half) (file : List ℕ) (n : ℕ) → AreBytes file
        → IsFaultAt h file n → items_in h file ≡ Err n }
    ensures fault_only { (h : Half) (file : List ℕ) (n : ℕ) → AreBytes file
        → items_in h file ≡ Err n → IsFaultAt h file n }
{}

/// The cartridge of a disk, and why there is none.
pub fn images_are_said()
    ensures found { (limits : Limits) (d : Files) (r : Result Cartridge Refusal) → AreBytes d.ip → AreBytes d.dp
        → IsSaid limits d r → image limits d ≡ r }
    ensures only { (limits : Limits) (d : Files) (r : Result Cartridge Refusal) → AreBytes d.ip → AreBytes d.dp
        → image limits d ≡ r → IsSaid limits d r }
{}
