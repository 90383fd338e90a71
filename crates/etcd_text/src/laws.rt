//! What holds of the texts.

ghost use Rattle.fenced.specs.Engine.{Tail};
ghost use Rattle.etcd_text.specs.Tails.{HaveOneSpelling};

/// No two tails have one text. So who compares texts compares tails.
pub fn tails_have_one_spelling()
    ensures { (one other : Tail) → HaveOneSpelling one other }
{}
