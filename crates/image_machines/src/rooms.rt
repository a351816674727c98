//! How much room for streams a machine of an image has.

/// Calls a function that is generic over the room of a machine, the streams of a processor: with 8 where an image needs no
/// more, else with 128, the most that one needs. What is generic besides stands before it, as in `f::<X>(..)`.
#[macro_export]
macro_rules! by_room {
    ($image:expr, $function:ident($($argument:expr),* $(,)?)) => {
        $crate::by_room!($image, $function::<>($($argument),*))
    };
    ($image:expr, $function:ident::<$($before:ty),*>($($argument:expr),* $(,)?)) => {
        if $image.slim() <= 8 {
            $function::<$($before,)* 8>($($argument),*)
        } else {
            $function::<$($before,)* 128>($($argument),*)
        }
    };
}

/// The same with the least of 1, 4, 16 and 128 that an image needs, for who keeps many machines.
#[macro_export]
macro_rules! by_least_room {
    ($image:expr, $function:ident::<$($before:ty),*>($($argument:expr),* $(,)?)) => {
        match $image.slim() {
            0 | 1 => $function::<$($before,)* 1>($($argument),*),
            2..=4 => $function::<$($before,)* 4>($($argument),*),
            5..=16 => $function::<$($before,)* 16>($($argument),*),
            _ => $function::<$($before,)* 128>($($argument),*),
        }
    };
}
