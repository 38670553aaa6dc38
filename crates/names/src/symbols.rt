// `WELL_KNOWN_SYMBOL_NAMES`, and whether a text is one of them.
ghost use Rattle.std.specs.Prelude.{◌≡◌};
ghost use Rattle.definition.specs.Names.{well_known_symbol_names, any_text};

use records::text::same_text;

const WELL_KNOWN_SYMBOL_NAMES: [&[u8]; 16] = [
    b"asyncDispose",
    b"asyncIterator",
    b"dispose",
    b"hasInstance",
    b"isConcatSpreadable",
    b"iterator",
    b"match",
    b"matchAll",
    b"metadata",
    b"replace",
    b"search",
    b"species",
    b"split",
    b"toPrimitive",
    b"toStringTag",
    b"unscopables",
];

// `WELL_KNOWN_SYMBOL_NAMES.contains(&prop_ident.sym.as_str())`
pub fn is_well_known(symbol: &[u8]) -> bool
    ensures { result ≡ any_text well_known_symbol_names symbol.now }
{
    WELL_KNOWN_SYMBOL_NAMES
        .iter()
        .any(|name| same_text(name, symbol))
}
