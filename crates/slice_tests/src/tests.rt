mod drawn;
mod made;
mod pixels;
mod runs;
mod shared;
