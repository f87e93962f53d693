//! Laws of images as texts. Each is proved, and does nothing: a caller has it by the call.
ghost use Rattle.std.specs.Prelude.{◌≡◌, ◌⊎◌, ◌↔◌, ◌<◌, ℕ, List, length};
ghost use Rattle.plain_text.specs.declared.fault.LineCause.{LineCause};
ghost use Rattle.plain_text.specs.declared.limit.TheConstants.{MOST_EVENTS};
ghost use Rattle.handover.specs.declared.image.Image.{Image};
ghost use Rattle.handover.specs.Images.{IsImage, FirstFault, HasTooMany, FitsImage, image_text};
ghost use Rattle.handover.specs.Images.{lines_of};

/// A text is that of one image, or it has one first fault: exactly one of the two. It has too many lines exactly where
/// all that count, or those before the first fault, pass the limit.
pub fn a_text_is_one_image_or_has_a_fault()
    ensures either { (text : List ℕ)
        → ((image : Image) × IsImage text image)
        ⊎ ((number : ℕ) × (cause : LineCause) × FirstFault text number cause) }
    ensures not_both { (text : List ℕ) (image : Image) (number : ℕ) (cause : LineCause)
        → IsImage text image → FirstFault text number cause → ⊥ }
    ensures one_image { (text : List ℕ) (a b : Image)
        → IsImage text a → IsImage text b → a ≡ b }
    ensures one_fault { (text : List ℕ) (x y : ℕ) (a b : LineCause)
        → FirstFault text x a → FirstFault text y b → (x ≡ y) × (a ≡ b) }
    ensures too_many { (text : List ℕ) (image : Image)
        → IsImage text image → HasTooMany text ↔ (MOST_EVENTS < length (lines_of image)) }
    ensures too_many_before { (text : List ℕ) (number : ℕ) (cause : LineCause)
        → (first : FirstFault text number cause)
        → HasTooMany text ↔ (MOST_EVENTS < length first.things) }
{}

/// The text that `put_image` writes is that of the image that it wrote, and of no other; the numbers are below 2^64 and
/// 2^32, as those of each `Image` are.
pub fn written_images_are_read()
    ensures read { (image : Image) → FitsImage image → IsImage (image_text image) image }
    ensures alone { (image other : Image)
        → FitsImage image → IsImage (image_text image) other → other ≡ image }
{}
