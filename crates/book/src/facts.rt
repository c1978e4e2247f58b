// Theorems on the year book, each the contract of a function.
ghost use Rattle.book.specs.Facts.{OneContents};

// A journal pins what a year book holds.
pub fn one_contents() -> u8
    ensures { OneContents }
{
    0
}
