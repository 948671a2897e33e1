// Laws over the definitions alone.
ghost use Rattle.doc_pictures.specs.Laws.{PicturesAreOne, PicturesAreShort};

/// The places of a stream have one list of pictures.
pub fn pictures_are_one()
    ensures { PicturesAreOne }
{}

/// The files of pictures are together no longer than the stream.
pub fn pictures_are_short()
    ensures { PicturesAreShort }
{}
