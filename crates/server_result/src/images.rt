//! The images that sessions kept, each once.

ghost use Rattle.std.specs.Prelude.{◌≡◌, OnOk, nat_lt, slice_get};
ghost use Rattle.server_result.specs.Images.{has_items, place_for, with_image, with_images};

use base_types::{Blob, Items, Memory};

fn is_before(image: &(u64, Blob), items: u64) -> bool
    ensures { result ≡ nat_lt image.now.0 items }
{
    image.0 < items
}

/// How many images are of fewer items.
fn place_for(images: &[(u64, Blob)], items: u64) -> usize
    ensures { result ≡ place_for items images.now }
{
    images
        .iter()
        .take_while(|image| is_before(*image, items))
        .count()
}

/// Whether an image of so many items stands at this place.
fn has_image_at(images: &[(u64, Blob)], place: usize, items: u64) -> bool
    ensures { result ≡ has_items items (slice_get images.now place) }
{
    match images.get(place) {
        Some(image) => image.0 == items,
        None => false,
    }
}

/// Adds an image in its place, unless there is one of as many items.
fn add_image(images: &mut Items<(u64, Blob)>, image: (u64, Blob)) -> Result<(), Memory>
    ensures { OnOk result (images.new ≡ with_image images.old image) }
{
    let place = place_for(images.as_slice(), image.0);
    if has_image_at(images.as_slice(), place, image.0) {
        return Ok(());
    }
    images.insert(place, image)
}

/// Adds images one after another to some that stand by rising number of items: each in its place, unless
/// there is one of as many items. It takes time in proportion to the number of images for each.
pub fn add_images(images: &mut Items<(u64, Blob)>, more: Items<(u64, Blob)>) -> Result<(), Memory>
    ensures { OnOk result (images.new ≡ with_images images.old more) }
{
    for image in more.into_vec() {
        add_image(images, image)?;
    }
    Ok(())
}
