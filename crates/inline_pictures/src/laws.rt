// Laws over the definitions alone.
ghost use Rattle.inline_pictures.specs.InlinePictures.{InlinePictureIsOne};

/// There is at most one picture at an offset.
pub fn inline_picture_is_one()
    ensures { InlinePictureIsOne }
{}
