// swc_helpers.rs: small types, types of literals and of templates, and the argument of `Object.freeze`.
#![tactic(auto)]

ghost use Rattle.std.specs.Prelude.{◌≡◌};
ghost use Rattle.swc_helpers.specs.Found.{is_const};

pub mod lit;
pub mod types;

// The keywords of `TsKeywordTypeKind` that types are made of.
#[derive(Clone, Copy)]
pub enum TsKeywordTypeKind {
    TsAnyKeyword,
    TsNumberKeyword,
    TsBooleanKeyword,
    TsBigIntKeyword,
    TsStringKeyword,
    TsUndefinedKeyword,
    TsNullKeyword,
}

// `DeclMutabilityKind`: `Const` where `as_const` is set.
#[derive(Clone, Copy)]
pub enum DeclMutabilityKind {
    Const,
    Mutable,
}

// `match as_const { true => DeclMutabilityKind::Const, false => DeclMutabilityKind::Mutable }`.
impl From<bool> for DeclMutabilityKind {
    ghost from_gives = { λ as_const kind. is_const kind ≡ as_const };

    fn from(as_const: bool) -> DeclMutabilityKind {
        match as_const {
            true => DeclMutabilityKind::Const,
            false => DeclMutabilityKind::Mutable,
        }
    }
}
