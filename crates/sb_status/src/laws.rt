//! What holds of each text, and of each page.
ghost use Rattle.sb_status.specs.Laws.{MarkupStandsInMarks, TextsAreNoMarkup};

/// Whatever a text is, none of the bytes that tags and attributes begin and end with stands in it where it is escaped.
pub fn texts_are_no_markup()
    ensures { TextsAreNoMarkup }
{}

/// Whatever a page is made of, the bytes that tags and attributes begin and end with stand in its marks.
pub fn markup_stands_in_marks()
    ensures { MarkupStandsInMarks }
{}
