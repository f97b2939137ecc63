mod borders;
mod entries;
mod images;
mod made;
mod rows;
mod shapes;
mod text;
