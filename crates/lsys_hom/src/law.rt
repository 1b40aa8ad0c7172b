//! The law of images.
ghost use Rattle.lsys_hom.specs.CallsInTurn.{ComesUpToRefusal, ComesWhole, StaysAtEnd, TellsImage, TellsRefusal};

/// A law of images: what comes is the image, or in place of it its refusal, after the image of the longest front of the
/// level that isn't refused. So the symbols that calls answer until the first None are the image, and a refusal that they
/// answer is the image's; after either of these every call answers it again.
pub fn law_of_images()
    ensures whole { ComesWhole }
    ensures front { ComesUpToRefusal }
    ensures symbols { TellsImage }
    ensures refused { TellsRefusal }
    ensures stays { StaysAtEnd }
{}
