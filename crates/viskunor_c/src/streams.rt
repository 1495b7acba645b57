// GDSII streams.
ghost use Rattle.std.specs.Prelude.{◌≡◌};
ghost use Rattle.gdsii.specs.Answers.{set_lent, read_call};

// Reads a stream into a set. A refused call puts zeros into both fields and leaves both lists as they were.
#[unsafe(no_mangle)]
pub extern "C" fn vk_gdsii_read(
    stream: &[u8],
    vertices: &mut [f64],
    counts: &mut [u32],
    outline_count: &mut u32,
    vertex_count: &mut u32,
) -> u32
    ensures { record { answer = record { number = result; value = record { outlines = outline_count.new; vertices = vertex_count.new } }; lent = set_lent vertices.new counts.new }
        ≡ read_call stream.now (set_lent vertices.old counts.old) }
{
    viskunor::streams::vk_gdsii_read(stream, vertices, counts, outline_count, vertex_count)
}
