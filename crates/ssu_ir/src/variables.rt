// The words of variables in a run: the word of each stands at its number.

ghost use Rattle.std.specs.Prelude.{◌≡◌, ◌<◌, ◌≤◌, All, length, map, vec_capacity};
ghost use Rattle.nv_base.specs.Words.{assigned, assigned_all};
ghost use Rattle.ssu_ir.specs.Meaning.{assigned_each};
ghost use Rattle.ssu_ir.specs.inner.Running.{env_of};

/// The word of a variable.
pub fn word_of(values: &[u32], x: u32) -> u32
    ensures { result ≡ env_of values.now x }
{
    match values.get(x as usize) {
        Some(w) => *w,
        None => 0,
    }
}

/// Gives a variable a word.
pub fn assign(values: &mut [u32], x: u32, w: u32)
    requires { x < length values.old }
    ensures env { env_of values.new ≡ assigned (env_of values.old) x w }
    ensures places { length values.new ≡ length values.old }
{
    values[x as usize] = w;
}

/// Gives each of these variables the same word.
pub fn assign_each(values: &mut [u32], xs: &[u32], w: u32)
    requires { All (λ x. x < length values.old) xs.now }
    ensures env { env_of values.new ≡ assigned_each (env_of values.old) xs.now w }
    ensures places { length values.new ≡ length values.old }
{
    for x in xs {
        assign(values, *x, w);
    }
}

/// Gives each of these variables its word.
pub fn assign_all(values: &mut [u32], xs: &[u32], ws: &[u32])
    requires many { length xs.now ≡ length ws.now }
    requires places { All (λ x. x < length values.old) xs.now }
    ensures env { env_of values.new ≡ assigned_all (env_of values.old) xs.now ws.now }
    ensures places { length values.new ≡ length values.old }
{
    for i in 0..xs.len() {
        assign(values, xs[i], ws[i]);
    }
}

/// Collects the words of these variables.
pub fn collect(values: &[u32], xs: &[u32], words: &mut Vec<u32>)
    requires { length xs.now ≤ vec_capacity words.old }
    ensures words { words.new.items ≡ map (env_of values.now) xs.now }
    ensures room { vec_capacity words.new ≡ vec_capacity words.old }
{
    words.clear();
    for x in xs {
        words.push_reserved(word_of(values, *x));
    }
}
