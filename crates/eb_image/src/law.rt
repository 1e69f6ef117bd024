ghost use Rattle.eb_image.specs.Image.{ImagesDiffer};

/// A law: no image is a proper prefix of another, and each is the image of one setting and of one
/// list of documents. Does nothing.
pub fn images_differ()
    ensures { ImagesDiffer }
{}
