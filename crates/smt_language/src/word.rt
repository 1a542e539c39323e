use crate::expression::Operator;
use logic_meaning::Quantifier;

/// What a reserved symbol is. No name is one.
#[derive(Clone, Copy)]
pub enum Word {
    SetLogic,
    SetInfo,
    SetOption,
    DeclareConst,
    DeclareFun,
    Assert,
    CheckSat,
    GetValue,
    Exit,
    True,
    False,
    Operator(Operator),
    Underscore,
    Divisible,
    Quantifier(Quantifier),
    Let,
}
