ghost use Rattle.eb_place.specs.ConverterLaws.{NextPutStays, ConvertedWordsTell, DirectoryTells, PackedWordsTell, ConvertedStays, PostingsFall};

/// A law: the next store of a conversion stays the next one while documents grow. Does nothing.
pub fn next_put_stays()
    ensures { NextPutStays }
{}

/// A law: the converter's words at each moment. The converted word of a segment is 1 exactly where
/// the segment is converted; the directory word of a term of it says where the term's packed list
/// begins and how many postings it has; and the packed words from there on are the packed list.
/// Does nothing.
pub fn converted_words()
    ensures converted { ConvertedWordsTell }
    ensures directory { DirectoryTells }
    ensures packed { PackedWordsTell }
{}

/// A law: a converted segment is so at each later moment, and has the same documents. Does nothing.
pub fn converted_stays()
    ensures { ConvertedStays }
{}

/// A law: the postings of a term, newest first, fall, and each has the bits of a posting. Does
/// nothing.
pub fn postings_fall()
    ensures { PostingsFall }
{}
