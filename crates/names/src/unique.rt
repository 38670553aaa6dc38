// The counter that names are made of, and how long a name is.
ghost use Rattle.std.specs.Prelude.{◌≡◌, ◌≤◌, length};
ghost use Rattle.definition.specs.Names.{decimal, gen_unique_name};

// The state that names are made of: `id_counter` of `FastCheckDtsTransformer`.
#[derive(Drop)]
pub struct Names {
    pub id_counter: usize,
}

// How many digits n has.
fn decimal_length(n: usize) -> usize
    ensures { (result ≡ length (decimal n)) × (result ≤ 20) }
{
    if n == 0 { 1 } else { n.ilog10() as usize + 1 }
}

// How long the name is that the counter gives.
pub fn unique_name_length(id_counter: usize) -> usize
    ensures { (result ≡ length (gen_unique_name id_counter)) × (result ≤ 25) }
{
    5 + decimal_length(id_counter)
}
