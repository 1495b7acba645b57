// Ellipses whose axes lie along x and y: the nearest point. A call gives its refusal's number, or 0, and
// an answer in the fields that it is lent; a refused call puts zeros there.
ghost use Rattle.std.specs.Prelude.{◌≡◌};
ghost use Rattle.accept.specs.Answers.{distance_of, distance_fields};
ghost use Rattle.ellipse.specs.Ellipse.{ellipse_answer};

#[unsafe(no_mangle)]
pub extern "C" fn vk_ellipse_nearest(
    centre_x: f64,
    centre_y: f64,
    semi_x: f64,
    semi_y: f64,
    x: f64,
    y: f64,
    nearest_x: &mut f64,
    nearest_y: &mut f64,
    distance: &mut f64,
) -> u32
    ensures { record { number = result; value = distance_of distance.new nearest_x.new nearest_y.new }
        ≡ distance_fields (ellipse_answer (record { x = centre_x; y = centre_y }) semi_x semi_y (record { x = x; y = y })) }
{
    viskunor::ellipses::vk_ellipse_nearest(
        centre_x, centre_y, semi_x, semi_y, x, y, nearest_x, nearest_y, distance,
    )
}
