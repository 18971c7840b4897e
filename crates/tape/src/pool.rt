// The samples that `trail` lends to the clips.
ghost use Rattle.std.specs.Prelude.{◌≡◌, length};
ghost use Rattle.tape.specs.Pool.{pool_sample, pool_from, trail_pool};

// Sample k: k/4096.
fn sample(k: usize) -> f32
    ensures { result ≡ pool_sample k }
{
    floats::narrow(std::num::nearest_u64_to_f64(k as u64) / 4096.0)
}

fn fill(pool: &mut [f32])
    ensures { pool.new ≡ pool_from 0 (length pool.old) }
{
    for (k, x) in pool.iter_mut().enumerate() {
        *x = sample(k);
    }
}

// The pool of `trail`: 4,096 samples, sample k being k/4096.
pub fn trail_pool() -> [f32; 4096]
    ensures { result ≡ trail_pool }
{
    let mut pool = [0.0f32; 4096];
    fill(&mut pool);
    pool
}
