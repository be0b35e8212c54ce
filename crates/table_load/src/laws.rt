// What holds of the spellings of images, whatever is called.
ghost use Rattle.std.specs.Prelude.{◌≡◌, ℕ, ◌<◌, List, [], ◌++◌, length, Some, None};
ghost use Rattle.table_load.specs.declared.tables.Image.{Image};
ghost use Rattle.table_load.specs.Images.{Spells};
ghost use Rattle.table_load.specs.Reading.{AreBytes, fault_of};

/// A fault has a place exactly where the bytes spell no image, and bytes after an image are a fault at the first of
/// them.
pub fn a_fault_is_where_no_image_is_spelled()
    ensures spelled { (v : Image) (bytes : List ℕ) → Spells v bytes → fault_of bytes ≡ None }
    ensures not_spelled { (bytes : List ℕ) → AreBytes bytes → fault_of bytes ≡ None
        → (v : Image) × Spells v bytes }
    ensures more { (v : Image) (bytes more : List ℕ) → Spells v bytes → 0 < length more
        → fault_of (bytes ++ more) ≡ Some (length bytes) }
{}

/// An image has one spelling at most, no spelling begins another, and no two images are spelled alike.
pub fn an_image_has_one_spelling()
    ensures one { (v : Image) (a b : List ℕ) → Spells v a → Spells v b → a ≡ b }
    ensures apart { (v w : Image) (bytes more : List ℕ) → Spells v bytes → Spells w (bytes ++ more)
        → (more ≡ []) × (v ≡ w) }
{}
