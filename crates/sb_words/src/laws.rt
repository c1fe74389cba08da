//! What holds of all words.
ghost use Rattle.sb_words.specs.Words.{AskForOneThing, AskOnce, NoWordAsksForRun, UnfitAskForNothing};

/// Words ask for one command at most, and a command is no question, has no fault and no part that isn't allowed. No word asks for a run.
pub fn words_ask_once()
    ensures once { AskOnce }
    ensures one_thing { AskForOneThing }
    ensures unfit { UnfitAskForNothing }
    ensures usual { NoWordAsksForRun }
{}
