//! Laws of trees that mean the same.
ghost use Rattle.regress_meaning.specs.Meaning.{Context};
ghost use Rattle.regress_front_nodes.specs.Alike.{MakeAlike};

/// What is made of alike parts is alike: alternatives, parts one after another, groups, lookarounds and repetitions.
pub fn alike_parts_make_alike_wholes()
    ensures { (context : Context) → MakeAlike context }
{}
